// Records that have a run of terms: whether all runs end within so many terms.
ghost use Rattle.std.specs.Prelude.{◌≡◌, List, ℕ, ◌<◌, ◌/◌, length, get_or};
ghost use Rattle.std.proofs.Common.{lit<};
ghost use Rattle.term_spec.specs.Words.{record_at, records};
ghost use Rattle.term_spec.specs.Term.{Run as SpecRun, run_layout, run_rule, runs_rule};
ghost use Rattle.words.specs.Records.{as_run};
ghost use Rattle.words.specs.RunLaws.{records_counted, records_entry, no_run};

use crate::{Record, Run};

// A kind of record that has a run.
pub trait HasRun: Record {
    // The runs of a slice's records, and the run that a value of the code has.
    ghost runs: { List ℕ → List SpecRun };

    ghost has: { Self → SpecRun };

    fn run(self) -> Run
        ensures { as_run result ≡ has self };

    // A record has a word at least, the runs are as many as the records, and entry i is the run of record i.
    ghost some: { 0 < Self.WIDTH };

    ghost counted: { (w : List ℕ) → length (runs w) ≡ length w / Self.WIDTH };

    ghost entry: { (w : List ℕ) (i : ℕ) (r : Self) → i < length w / Self.WIDTH → Self.meant r ≡ record_at Self.layout w i
        → get_or (runs w) i no_run ≡ has r };
}

impl HasRun for Run {
    ghost runs = { records run_layout };

    ghost has = { as_run };

    fn run(self) -> Run {
        self
    }

    ghost some = { lit< tt };

    ghost counted = { records_counted run_layout };

    ghost entry = { λ w i r lt e. records_entry run_layout w i lt e no_run };
}

// Whether a run ends within so many terms.
#[tactic(auto, using(std::proofs::lemmas::Bool::Decides::nat_tests), unfolding(term_spec::specs::Term::run_rule))]
fn run_inside(r: Run, terms: usize) -> bool
    ensures { result ≡ run_rule terms (as_run r) }
{
    r.len <= terms && r.start <= terms - r.len
}

// Whether the run of every record, even an empty one, ends within so many terms.
pub fn runs_inside<R: HasRun>(words: &[u32], terms: usize) -> bool
    ensures { result ≡ runs_rule terms (R.runs words.now) }
{
    let n = words.len() / R::WIDTH;
    (0..n).all(|i| run_inside(crate::get::<R>(words, i).run(), terms))
}
