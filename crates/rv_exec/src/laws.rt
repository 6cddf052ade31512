//! Laws of the definitions that the contracts of this crate cite. Nothing is computed here.
ghost use Rattle.std.specs.Prelude.{◌≡◌, ℕ, ◌+◌, ◌-◌, ◌*◌, ◌^◌, ◌<◌, ◌+ℤ◌, ◌*ℤ◌, unsigned_abs};
ghost use Rattle.slack_base.specs.declared.instructions.RegOp.TheVariants.{Div, Divu, Rem, Remu};
ghost use Rattle.rv_exec.specs.Words.{signed_of};
ghost use Rattle.rv_exec.specs.Alu.{alu_of};

/// The dividend is the quotient times the divisor plus the remainder, and the remainder is smaller than the
/// divisor: over the signed readings for DIV and REM, where the divisor isn't 0 and the quotient isn't 2^31, and
/// over the words for DIVU and REMU, where the divisor isn't 0 (RISC-V Unprivileged ISA 20191213, chapter 7.2).
pub fn division()
    ensures signed { (a b : ℕ) → a < 2 ^ 32 → b < 2 ^ 32 → 0 < b → ¬ ((a ≡ 2 ^ 31) × (b ≡ 2 ^ 32 - 1)) →
        signed_of (alu_of Div a b) *ℤ signed_of b +ℤ signed_of (alu_of Rem a b) ≡ signed_of a }
    ensures signed_smaller { (a b : ℕ) → a < 2 ^ 32 → b < 2 ^ 32 → 0 < b →
        unsigned_abs (signed_of (alu_of Rem a b)) < unsigned_abs (signed_of b) }
    ensures unsigned { (a b : ℕ) → 0 < b → alu_of Divu a b * b + alu_of Remu a b ≡ a }
    ensures unsigned_smaller { (a b : ℕ) → 0 < b → alu_of Remu a b < b }
{}
