// Where the terms stand that are copied to words: in another slice, or in the words themselves.
ghost use Rattle.std.specs.Prelude.{◌≡◌, refl, List, ℕ, ◌+◌, ◌*◌, ◌<◌, ◌≤◌, length, get_or, take, drop};
ghost use Rattle.std.proofs.lemmas.List.Edits.{sets};
ghost use Rattle.term_spec.specs.Words.{Lies, count, write};
ghost use Rattle.term_spec.specs.Term.{term_layout};
ghost use Rattle.rope.specs.Copies.{terms_at, Kept};

use words::Run;

// n words from `from` on go to another slice, at `to` and after it.
fn copy_words(source: &[u32], target: &mut [u32], from: usize, to: usize, n: usize)
    requires { (from + n ≤ length source.now) × (to + n ≤ length target.old) }
    ensures { target.new ≡ sets target.old to (take n (drop from source.now)) }
{
    // A loop, and not copy_from_slice: the archive for C is to need nothing but memset from outside.
    for i in 0..n {
        target[to + i] = source[from + i];
    }
}

// Where terms are copied from. What a copy to another slice and one within a slice need to know is the same by these laws.
pub trait Source: Copy {
    // The slice that has the terms where the words are these; how many are used there; the record of the words where the first of them goes.
    ghost terms: { Self → List ℕ → List ℕ };

    ghost used: { Self → ℕ };

    ghost base: { Self → ℕ };

    // A run of terms becomes the records after the first `done`.
    fn copy_run(self, words: &mut [u32], r: Run, done: usize)
        requires inside { (r.start + r.len ≤ used self) × Lies term_layout (terms self words.old) (used self) }
        requires room { Lies term_layout words.old (base self + done + r.len) }
        ensures { let before = words.old in
            words.new ≡ sets before ((base self + done) * term_layout.width)
            (take (r.len * term_layout.width) (drop (r.start * term_layout.width) (terms self before))) };

    // Words before that record leave the used terms.
    ghost kept: { (s : Self) → Kept (terms s) (used s) (base s) };
}

// Another slice.
#[derive(Clone, Copy)]
pub struct Out<'a> {
    pub terms: &'a [u32],
}

// The words themselves: the terms go after the first `used`.
#[derive(Clone, Copy)]
pub struct After {
    pub used: usize,
}

impl<'a> Source for Out<'a> {
    ghost terms = { λ s w. s.terms.now };

    ghost used = { λ s. count term_layout s.terms.now };

    ghost base = { λ s. 0 };

    fn copy_run(self, words: &mut [u32], r: Run, done: usize) {
        let from = r.start * words::TERM_WIDTH;
        let to = done * words::TERM_WIDTH;
        // A rope joined term by term has runs of one term; that the compiler knows their length spares the loop.
        if r.len == 1 {
            copy_words(self.terms, words, from, to, words::TERM_WIDTH);
            return;
        }
        copy_words(self.terms, words, from, to, r.len * words::TERM_WIDTH);
    }

    ghost kept = { λ s w v l e. (refl, refl) };
}

impl Source for After {
    ghost terms = { λ s w. w };

    ghost used = { λ s. s.used };

    ghost base = { λ s. s.used };

    fn copy_run(self, words: &mut [u32], r: Run, done: usize) {
        let from = r.start * words::TERM_WIDTH;
        let to = (self.used + done) * words::TERM_WIDTH;
        // As above.
        if r.len == 1 {
            places::copy_up(words, from, to, words::TERM_WIDTH);
            return;
        }
        places::copy_up(words, from, to, r.len * words::TERM_WIDTH);
    }

    ghost kept = { λ s w v l e. (l, e) };
}

// The terms at k places become the records after the first `done`.
pub fn copy_places<S: Source>(
    source: S,
    list: &[u32; places::PART],
    k: usize,
    words: &mut [u32],
    done: usize,
)
    requires there { (k ≤ length list.now) × ((i : ℕ) → i < k → get_or list.now i 0 < S.used source) }
    requires source { Lies term_layout (S.terms source words.old) (S.used source) }
    requires room { Lies term_layout words.old (S.base source + done + k) }
    ensures { let before = words.old in
        words.new ≡ write term_layout before (S.base source + done) (terms_at (S.terms source before) (take k list.now)) }
{
    for i in 0..k {
        let place = words::word(list, i);
        source.copy_run(
            words,
            Run {
                start: place,
                len: 1,
            },
            done + i,
        );
    }
}
