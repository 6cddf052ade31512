//! Tables of names, in the order of their bytes.
ghost use Rattle.std.specs.Prelude.{◌≡◌, IsTrue};
ghost use Rattle.std.specs.Cmp.Lexicographic.{slice_cmp};
ghost use Rattle.std.specs.Ordering.{nat_cmp};
ghost use Rattle.rv_asm.specs.Tables.{entry_in, rows_of, is_sorted};

use std::cmp::Ordering;

/// A row of a table: a name and a value.
pub(crate) type Row<X> = (&'static [u8], X);

/// The value beside a name.
pub(crate) fn entry_in<X: Copy>(table: &[Row<X>], name: &[u8]) -> Option<X>
    requires { IsTrue (is_sorted (rows_of table.now)) }
    ensures { result ≡ entry_in (rows_of table.now) name.now }
{
    let at = table.binary_search_by(|row| order_of(row.0, name)).ok()?;
    Some(table[at].1)
}

/// How two names stand to one another.
fn order_of(name: &[u8], other: &[u8]) -> Ordering
    ensures { result ≡ slice_cmp nat_cmp name.now other.now }
{
    name.cmp(other)
}
