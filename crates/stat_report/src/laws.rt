//! What holds of listings.
ghost use Rattle.std.specs.Prelude.{◌≡◌, ◌+◌, ◌^◌, ◌≤◌, ℕ, List, All, AllPairs};
ghost use Rattle.slack_base.specs.declared.images.Image.{Image};
ghost use Rattle.slack_base.specs.Images.{IsInMemory, IsApart, Fits};
ghost use Rattle.stat_report.specs.Listing.{IsListing};

/// An image whose segments share no address has one listing.
pub fn one_listing()
    ensures { (image : Image) (x y : List ℕ) → All (IsInMemory 0 (2 ^ 32)) image.segments → AllPairs IsApart image.segments
        → IsListing image x → IsListing image y → x ≡ y }
{}

/// An image that fits a memory can be listed.
pub fn images_that_fit()
    ensures { (base memory : ℕ) (image : Image) → base + memory ≤ 2 ^ 32 → Fits base memory image
        → All (IsInMemory 0 (2 ^ 32)) image.segments × AllPairs IsApart image.segments }
{}
