// The calls of the library, on what is lent.
use crate::answer::{Answer, Given};
use crate::clause;
use crate::fault::Fault;
use crate::stores::Stores;
use crate::vocabulary::Call;
use listing::Matched;
use std::alloc::Global;
use view::Field;
use view_read::Flat;
use words::Run;
use words::refusal::Refusal;

// A call with what it takes.
#[derive(Drop)]
pub enum Request {
    FromRuns(Vec<u32>),
    Take(Field, usize),
    Rest(Field, usize),
    Range(Field, usize, usize),
    Join(Field, Field),
    StartsWith(Field, Field),
    Equal(Field, Field),
    Flatten(Field),
    FlatPart(Result<Flat, usize>),
    Listing(Field),
    First(Field),
    CompareRuns(Run, Run),
    NameCount,
    CheckTerms,
}

impl Request {
    // The clause cannot be read where the call takes more values or fewer.
    pub fn from_values(call: Call, values: &[usize], alloc: Global) -> Result<Request, Fault> {
        let request = match (call, values) {
            (Call::FromRuns, runs) => Request::FromRuns(clause::words(alloc, runs)?),
            (Call::Take, [node, len, n]) => Request::Take(Field::new(*node, *len), *n),
            (Call::Rest, [node, len, n]) => Request::Rest(Field::new(*node, *len), *n),
            (Call::Range, [node, len, k, n]) => Request::Range(Field::new(*node, *len), *k, *n),
            (Call::Join, [p, n, q, m]) => Request::Join(Field::new(*p, *n), Field::new(*q, *m)),
            (Call::StartsWith, [p, n, q, m]) => {
                Request::StartsWith(Field::new(*p, *n), Field::new(*q, *m))
            }
            (Call::Equal, [p, n, q, m]) => Request::Equal(Field::new(*p, *n), Field::new(*q, *m)),
            (Call::Flatten, [node, len]) => Request::Flatten(Field::new(*node, *len)),
            (Call::FlatPart, [kind, start, len]) => {
                Request::FlatPart(flat_from_values(*kind, *start, *len))
            }
            (Call::Listing, [node, len]) => Request::Listing(Field::new(*node, *len)),
            (Call::First, [node, len]) => Request::First(Field::new(*node, *len)),
            (Call::CompareRuns, [p, n, q, m]) => Request::CompareRuns(
                Run { start: *p, len: *n },
                Run { start: *q, len: *m },
            ),
            (Call::NameCount, []) => Request::NameCount,
            (Call::CheckTerms, []) => Request::CheckTerms,
            _ => return Err(Fault::Unread),
        };
        Ok(request)
    }
}

// An answer of flatten, as a line writes it: a refusal is any number.
fn flat_from_values(kind: usize, start: usize, len: usize) -> Result<Flat, usize> {
    match Answer::from_number(kind) {
        Some(Answer::Store) => Ok(Flat::InStore(Run { start, len })),
        Some(Answer::Work) => Ok(Flat::InWork(start)),
        _ => Err(start),
    }
}

// ---- the calls ----

impl Stores {
    // What the call answers. What it changes of what is lent stays.
    pub fn call(&mut self, request: &Request) -> Given {
        match request {
            Request::FromRuns(runs) => self.build(|names, terms, used, nodes, nodes_used| {
                view::from_runs(names, terms, used, nodes, nodes_used, runs)
            }),
            Request::Take(field, n) => self.take(*field, *n),
            Request::Rest(field, n) => self.build(|names, terms, used, nodes, nodes_used| {
                view::rest(names, terms, used, nodes, nodes_used, *field, *n)
            }),
            Request::Range(field, k, n) => self.build(|names, terms, used, nodes, nodes_used| {
                view::range(names, terms, used, nodes, nodes_used, *field, *k, *n)
            }),
            Request::Join(first, second) => self.build(|names, terms, used, nodes, nodes_used| {
                view::join(names, terms, used, nodes, nodes_used, *first, *second)
            }),
            Request::StartsWith(first, second) => {
                self.judge(view_read::starts_with, *first, *second)
            }
            Request::Equal(first, second) => self.judge(view_read::equal, *first, *second),
            Request::Flatten(field) => self.flatten(*field),
            Request::FlatPart(flat) => self.flat_part(*flat),
            Request::Listing(field) => self.list(
                listing::match_pattern_with_bindings_candidates,
                *field,
            ),
            Request::First(field) => self.list(listing::match_pattern_first, *field),
            Request::CompareRuns(first, second) => self.compare_runs(*first, *second),
            Request::NameCount => self.name_count(),
            Request::CheckTerms => self.check_terms(),
        }
    }

    // A call that may add nodes.
    fn build<F>(&mut self, call: F) -> Given
    where
        F: FnOnce(&[u8], &[u32], usize, &mut [u32], &mut usize) -> Result<Field, Refusal>,
        requires { F.IsAlwaysCallable call }
    {
        let names = self.names.lent();
        let terms = self.terms.lent();
        let used = self.terms.used();
        let answer = self.nodes.lend_to(|nodes, nodes_used| call(
            names, terms, used, nodes, nodes_used,
        ));
        Given::from(answer)
    }

    fn take(&self, field: Field, n: usize) -> Given {
        Given::from(view::take(
            self.names.lent(),
            self.terms.lent(),
            self.terms.used(),
            self.nodes.lent(),
            self.nodes.used(),
            field,
            n,
        ))
    }

    // A call that compares two fields.
    fn judge<F>(&self, call: F, first: Field, second: Field) -> Given
    where
        F: FnOnce(&[u8], &[u32], usize, &[u32], usize, Field, Field) -> Result<bool, Refusal>,
        requires { F.IsAlwaysCallable call }
    {
        Given::from(call(
            self.names.lent(),
            self.terms.lent(),
            self.terms.used(),
            self.nodes.lent(),
            self.nodes.used(),
            first,
            second,
        ))
    }

    // And what flat_part then shows.
    fn flatten(&mut self, field: Field) -> Given {
        let flat = view_read::flatten(
            self.names.lent(),
            self.terms.lent(),
            self.terms.used(),
            self.nodes.lent(),
            self.nodes.used(),
            field,
            self.work.lent_mut(),
        );
        self.shown.show(view_read::flat_part(self.terms.lent(), self.work.lent(), flat));
        Given::from(flat)
    }

    // flat_part of an answer that did not come of its slices; the work buffer has two terms' words.
    fn flat_part(&mut self, flat: Result<Flat, usize>) -> Given {
        let work = [9; 2 * words::TERM_WIDTH];
        self.shown
            .show(view_read::flat_part(self.terms.lent(), &work, flat));
        Given::new(Answer::Ok, 0, 0)
    }

    // A call that lists candidates, and may add terms.
    fn list<F>(&mut self, call: F, field: Field) -> Given
    where
        F: FnOnce(
            &[u8],
            &mut [u32],
            &mut usize,
            &[u32],
            usize,
            Field,
            &[u32],
            &[u32],
            &mut [u32],
        ) -> Result<Matched, Refusal>,
        requires { F.IsAlwaysCallable call }
    {
        let names = self.names.lent();
        let nodes = self.nodes.lent();
        let nodes_used = self.nodes.used();
        let pattern = self.pattern.lent();
        let start = self.start.lent();
        let slots = self.slots.lent_mut();
        let answer = self.terms.lend_to(|terms, used| {
            call(
                names, terms, used, nodes, nodes_used, field, pattern, start, slots,
            )
        });
        Given::from(answer)
    }

    fn compare_runs(&self, first: Run, second: Run) -> Given {
        Given::from(equality::compare_runs(
            self.names.lent(),
            self.terms.lent(),
            self.terms.used(),
            first.start,
            first.len,
            second.start,
            second.len,
        ))
    }

    fn name_count(&self) -> Given {
        let n = listing::name_count(self.names.lent(), self.pattern.lent(), self.start.lent());
        Given::new(Answer::Count, n, 0)
    }

    fn check_terms(&self) -> Given {
        Given::from(value::check_terms(self.names.lent(), self.terms.lent(), self.terms.used()))
    }
}
