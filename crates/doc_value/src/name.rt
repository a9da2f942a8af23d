//! Tests on the names of fields and the parts of paths.
ghost use Rattle.std.specs.Prelude.{◌≡◌};
ghost use Rattle.doc_value.specs.Names.{is_id_name, is_transaction_name, is_operator_name, is_refused_name};

pub(crate) fn is_id(name: &[u8]) -> bool
    ensures { result ≡ is_id_name name.now }
{
    name == b"_id".as_slice()
}

pub(crate) fn is_of_transactions(name: &[u8]) -> bool
    ensures { result ≡ is_transaction_name name.now }
{
    name.starts_with(b"txn-")
}

pub(crate) fn is_operator(name: &[u8]) -> bool
    ensures { result ≡ is_operator_name name.now }
{
    name.starts_with(b"$")
}

/// A name that no field of a body may have, at any depth.
pub(crate) fn is_refused(name: &[u8]) -> bool
    ensures { result ≡ is_refused_name name.now }
{
    name.contains(&b'.') || is_operator(name)
}
