//! The names of works and items.
ghost use Rattle.std.specs.Prelude.{◌≡◌, ℕ, List};

/// What names the works and items of a scheme, in bytes; a name is empty where there is none. An `Option` would be no plainer: nothing is
/// printed of an empty name, nor of none.
pub trait Names {
    ghost works: { Self → ℕ → List ℕ };

    ghost items: { Self → ℕ → List ℕ };

    fn work(&self, number: usize) -> &[u8]
        ensures { result.now ≡ works self.now number };

    fn item(&self, number: usize) -> &[u8]
        ensures { result.now ≡ items self.now number };
}
