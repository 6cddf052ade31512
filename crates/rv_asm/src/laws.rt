//! What holds of assembled texts.
ghost use Rattle.std.specs.Prelude.{◌≡◌, ℕ, ◌^◌, ◌<◌, List, [], ◌∷◌, Ok};
ghost use Rattle.std.specs.Int.{to_le_bytes, w32};
ghost use Rattle.slack_base.specs.declared.images.Image.{Image};
ghost use Rattle.slack_base.specs.declared.instructions.Instr.{Instr};
ghost use Rattle.rv_decode.specs.Encodes.{Encodes};
ghost use Rattle.rv_decode.specs.Ranges.{IsInRange};
ghost use Rattle.rv_decode.specs.Texts.{text};
ghost use Rattle.rv_asm.specs.Instructions.{Instruction};
ghost use Rattle.slack_base.specs.Images.{one_piece};
ghost use Rattle.rv_asm.specs.Programs.{IsAssembly, program_of};
ghost use Rattle.rv_asm.specs.Written.{SaysAll};

/// A text and a base have one image: two images that are both the text's are the same.
pub fn one_image()
    ensures { (text : List ℕ) (base : ℕ) (x y : Image) → IsAssembly text base x → IsAssembly text base y → x ≡ y }
{
    rv_decode::laws::one_word();
}

/// The text of an instruction whose fields are in their ranges, as a text of one line, assembles to the
/// instruction's word; of FENCE, whose text doesn't say what it orders, that is so of one word.
pub fn texts_back()
    ensures program { (instr : Instr) → IsInRange instr → SaysAll instr → program_of (text instr) ≡ Ok (Instruction instr ∷ []) }
    ensures image { (instr : Instr) (word base : ℕ) → word < 2 ^ 32 → Encodes word instr → SaysAll instr
        → IsAssembly (text instr) base (one_piece base base (to_le_bytes w32 word)) }
{
    rv_decode::laws::in_range();
}
