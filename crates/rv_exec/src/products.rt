//! The high words of 64-bit products.
ghost use Rattle.std.specs.Prelude.{◌≡◌, pos, ◌*ℤ◌};
ghost use Rattle.rv_exec.specs.Words.{signed_of};
ghost use Rattle.rv_exec.specs.Alu.{high_of};

/// The high word of the product of the signed readings.
pub fn high_product(a: u32, b: u32) -> u32
    ensures { result ≡ high_of (signed_of a *ℤ signed_of b) }
{
    high_word(i64::from(a.cast_signed()) * i64::from(b.cast_signed()))
}

/// The high word of the product of the signed reading of `a` by the word `b`.
pub fn high_product_mixed(a: u32, b: u32) -> u32
    ensures { result ≡ high_of (signed_of a *ℤ pos b) }
{
    high_word(i64::from(a.cast_signed()) * i64::from(b))
}

/// The high word of the product of the words.
pub fn high_product_unsigned(a: u32, b: u32) -> u32
    ensures { result ≡ high_of (pos a *ℤ pos b) }
{
    ((u64::from(a) * u64::from(b)) >> 32) as u32
}

fn high_word(product: i64) -> u32
    ensures { result ≡ high_of product }
{
    (product.cast_unsigned() >> 32) as u32
}
