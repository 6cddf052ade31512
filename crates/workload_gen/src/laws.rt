//! What holds of generated programs.
ghost use Rattle.std.specs.Prelude.{◌≡◌, ℕ};
ghost use Rattle.slack_base.specs.declared.images.Image.{Image};
ghost use Rattle.workload_gen.specs.Programs.{IsProgram};

/// A seed and a base have one program: two images that are both it are the same.
pub fn one_program()
    ensures { (seed base : ℕ) (x y : Image) → IsProgram seed base x → IsProgram seed base y → x ≡ y }
{
    rv_decode::laws::one_word();
}
