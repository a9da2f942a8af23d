ghost use Rattle.std.specs.Prelude.{◌≡◌, [], ◌++◌, OnOk, OnErr};

use doc_value::OutOfMemory;
use sqlite_items::Items;
use std::alloc::Global;
use std::marker::Model;
use std::mem;
use txn_key::Token;

/// Tokens that were found, in order. It stays as it is where memory is wanting.
#[derive(Drop)]
pub(crate) struct TokenList {
    tokens: Vec<Token>,
}

impl Model for TokenList {
    ghost use Rattle.std.specs.Prelude.{List};
    ghost use Rattle.std.specs.Coded.{coded_list};
    ghost use Rattle.txn_key.specs.declared.id.Token.{Token};
    ghost use Rattle.txn_key.specs.contracts.id.Token as token;

    ghost Value = { List Token };

    ghost coded = { coded_list token.the_row.coded };

    ghost view = { λ l. l.tokens.items };
}

impl TokenList {
    pub(crate) fn new(alloc: Global) -> TokenList
        ensures { result ≡ [] }
    {
        TokenList {
            tokens: Vec::new(alloc),
        }
    }

    pub(crate) fn extend(&mut self, more: &[Token]) -> Result<(), OutOfMemory>
        ensures ok { OnOk result (self.new ≡ self.old ++ more.now) }
        ensures err { OnErr result (self.new ≡ self.old) }
    {
        self.tokens.extend_from_slice(more)
    }

    /// All the tokens, which leave the list.
    pub(crate) fn take(&mut self, alloc: Global) -> Items<Token>
        ensures taken { result ≡ self.old }
        ensures empty { self.new ≡ [] }
    {
        Items::from_vec(mem::replace(&mut self.tokens, Vec::new(alloc)))
    }
}
