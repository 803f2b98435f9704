//! What gives a text piece by piece.

ghost use Rattle.std.specs.Prelude.{◌≡◌, ◌<◌, ◌++◌, ℕ, List, [], IsTrue, false};

/// What gives a text piece by piece.
pub trait Pieces {
    /// The piece that was made last.
    ghost piece: { Self → List ℕ };

    /// This is the text that is still to come.
    ghost comes: { Self → List ℕ → Type 0 };

    /// How many pieces are still to come at most.
    ghost left: { Self → ℕ };

    /// Makes the next piece, where there is one. It takes no memory.
    fn advance(&mut self) -> bool
        requires stands { (text : List ℕ) × comes self.old text }
        ensures more { IsTrue result → (text : List ℕ) → comes self.old text → (rest : List ℕ) × (text ≡ piece self.new ++ rest) × comes self.new rest }
        ensures fewer { IsTrue result → left self.new < left self.old }
        ensures end { result ≡ false → (text : List ℕ) → comes self.old text → text ≡ [] };

    /// The piece that was made last.
    fn piece(&self) -> &[u8]
        ensures { result.now ≡ piece self.now };
}
