//! Tables of words.
ghost use Rattle.std.specs.Prelude.{◌≡◌};
ghost use Rattle.sim_words.specs.Tables.{entry_in, rows_of};

/// A row of a table: a word and a value.
pub(crate) type Row<X> = (&'static [u8], X);

/// The value beside a word.
pub(crate) fn entry_in<X: Copy>(table: &[Row<X>], word: &[u8]) -> Option<X>
    ensures { result ≡ entry_in (rows_of table.now) word.now }
{
    for row in table {
        if row.0 == word {
            return Some(row.1);
        }
    }
    None
}
