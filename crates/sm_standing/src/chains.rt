//! Laws of what is read through a chain of images, at one fixed sector.

ghost use Rattle.std.specs.Prelude.{◌≡◌, ◌≢◌, ◌⊎◌, ℕ, List, Some};
ghost use Rattle.sm_base.specs.declared.names.Name.{Name};
ghost use Rattle.sm_standing.specs.Images.{ImageAnswer, here, up, walk};
ghost use Rattle.sm_standing.specs.Answering.{ImageAnswers, answer, Reads, ReadsAlike, IsNoParent, SameBut, SendsUpAlone, renamed_answer};

/// Where so many turns give bytes, the walk of at most so many images gives them.
pub fn law_walk()
    ensures { (f : ImageAnswers) (k : ℕ) (n : Name) (bytes : List ℕ) → answer k f n ≡ Some bytes → walk k f n ≡ bytes }
{}

/// An image that is nobody's parent is changed, comes or goes: all others read as before.
pub fn law_no_parent()
    ensures { (f g : ImageAnswers) (x : Name) → IsNoParent f x → SameBut f g x → (n : Name) → n ≢ x → ReadsAlike f n g n }
{}

/// A guest writes into an image that is nobody's parent: it reads as before, or the new bytes.
pub fn law_guest_write()
    ensures { (f g : ImageAnswers) (x : Name) (new : List ℕ) → IsNoParent f x → SameBut f g x → (g x ≡ f x) ⊎ (g x ≡ here new)
        → (bytes : List ℕ) → Reads g x bytes → Reads f x bytes ⊎ (bytes ≡ new) }
{}

/// A parent is changed in a sector that its only child holds: all but the parent read as before.
pub fn law_copy_below()
    ensures { (f g : ImageAnswers) (v p : Name) (bytes : List ℕ) → SendsUpAlone f v p → f v ≡ here bytes → SameBut f g p
        → (n : Name) → n ≢ p → ReadsAlike f n g n }
{}

/// A child is linked from an image to that image's parent, which answers whatever the image answers:
/// all read as before.
pub fn law_relink()
    ensures { (f g : ImageAnswers) (c v p : Name) → f c ≡ up v → g c ≡ up p → c ≢ v → SameBut f g c
        → ((bytes : List ℕ) → f v ≡ here bytes → Reads g p bytes) → ((q : Name) → f v ≡ up q → q ≡ p)
        → (n : Name) → ReadsAlike f n g n }
{}

/// An image gets another name, and each link to it too: it reads as before under the new name.
pub fn law_rename()
    ensures { (rename : Name → Name) (f g : ImageAnswers) → ((n : Name) → g (rename n) ≡ renamed_answer rename (f n))
        → (n : Name) → ReadsAlike f n g (rename n) }
{}
