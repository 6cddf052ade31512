//! What holds of the table of instructions as a whole.
ghost use Rattle.std.specs.Prelude.{◌≡◌, ℕ, ◌^◌, ◌<◌, Some};
ghost use Rattle.slack_base.specs.declared.instructions.Instr.{Instr};
ghost use Rattle.rv_decode.specs.Decoding.{instr_of};
ghost use Rattle.rv_decode.specs.Encodes.{Encodes};
ghost use Rattle.rv_decode.specs.Ranges.{IsInRange};

/// What a word stands for as a function, which the definition of a machine cites, is what the table says.
pub fn the_table()
    ensures found { (word : ℕ) (i : Instr) → instr_of word ≡ Some i → Encodes word i }
    ensures only { (word : ℕ) (i : Instr) → Encodes word i → instr_of word ≡ Some i }
{}

/// A word stands for one instruction at most.
pub fn one_instruction()
    ensures { (word : ℕ) (i j : Instr) → Encodes word i → Encodes word j → i ≡ j }
{}

/// An instruction has one word at most. (`encode` gives one to each whose fields are in their ranges.)
pub fn one_word()
    ensures { (v w : ℕ) (i : Instr) → v < 2 ^ 32 → w < 2 ^ 32 → Encodes v i → Encodes w i → v ≡ w }
{}

/// The fields of what a word stands for are in their ranges.
pub fn in_range()
    ensures { (word : ℕ) (i : Instr) → word < 2 ^ 32 → Encodes word i → IsInRange i }
{}
