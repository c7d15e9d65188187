// What is lent to the calls.
use crate::fault::Fault;
use crate::names::Names;
use crate::records::Records;
use crate::vocabulary::{Region, Verb};
use crate::wrong::Wrong;
use std::alloc::{AllocError, Global};

// The words of the regions.
const TERM_WORDS: usize = 1028 * words::TERM_WIDTH;

const NODE_WORDS: usize = 100 * words::NODE_WIDTH;

const PATTERN_WORDS: usize = 260 * items::ITEM_WIDTH;

const START_WORDS: usize = 68 * items::BINDING_WIDTH;

const SLOT_WORDS: usize = 128;

const WORK_WORDS: usize = 16 * words::TERM_WIDTH;

#[derive(Drop)]
pub struct Stores {
    pub names: Names,
    pub terms: Records,
    pub nodes: Records,
    pub pattern: Records,
    pub start: Records,
    pub slots: Records,
    pub work: Records,
    pub shown: Records,
}

impl Stores {
    pub fn new(alloc: Global) -> Result<Stores, AllocError> {
        Ok(Stores {
            names: Names::new(alloc)?,
            terms: Records::new(alloc, TERM_WORDS, Region::Terms.width())?,
            nodes: Records::new(alloc, NODE_WORDS, Region::Nodes.width())?,
            pattern: Records::new(alloc, PATTERN_WORDS, Region::Pattern.width())?,
            start: Records::new(alloc, START_WORDS, Region::Start.width())?,
            slots: Records::new(alloc, SLOT_WORDS, Region::Slots.width())?,
            work: Records::new(alloc, WORK_WORDS, Region::Work.width())?,
            shown: Records::new(alloc, WORK_WORDS, Region::Shown.width())?,
        })
    }

    // Nothing is lent or used. What was set stays, to be lent again.
    pub fn take_back(&mut self) {
        self.names.take_back();
        self.terms.take_back();
        self.nodes.take_back();
        self.pattern.take_back();
        self.start.take_back();
        self.slots.take_back();
        self.work.take_back();
        self.shown.take_back();
    }

    // None for the names, which are no words.
    fn records_mut(&mut self, region: Region) -> Option<&mut Records> {
        match region {
            Region::Terms => Some(&mut self.terms),
            Region::Nodes => Some(&mut self.nodes),
            Region::Pattern => Some(&mut self.pattern),
            Region::Start => Some(&mut self.start),
            Region::Slots => Some(&mut self.slots),
            Region::Work => Some(&mut self.work),
            Region::Shown => Some(&mut self.shown),
            Region::Names => None,
        }
    }

    // A clause that sets a store, or that says what a call writes: a region, and what becomes of it.
    pub fn change(&mut self, verb: Verb, values: &[usize], alloc: Global) -> Result<(), Fault> {
        let (region, values) = values.split_first().ok_or(Fault::Unread)?;
        let region = Region::from_number(*region).ok_or(Fault::Unread)?;
        match self.records_mut(region) {
            Some(records) => records.change(verb, values, alloc),
            None => self.names.change(verb, values),
        }
    }

    // Before a call nothing is written to slots, work buffer and what is shown, and it must leave what there is.
    pub fn prepare(&mut self) {
        self.slots.unset();
        self.work.unset();
        self.shown.unset();
        self.terms.want_unchanged(self.terms.used());
        self.nodes.want_unchanged(self.nodes.used());
        self.pattern.want_unchanged(self.pattern.used_wanted());
        self.start.want_unchanged(self.start.used_wanted());
        self.slots.want_unchanged(0);
        self.work.want_unchanged(0);
        self.shown.want_unchanged(0);
    }

    // What the call left that is not as it must be.
    pub fn wrong(&self) -> Option<Wrong> {
        self.wrong_word().or_else(|| self.wrong_count())
    }

    // The words of the pattern and of the starting bindings are told as if they stood after the nodes.
    fn wrong_word(&self) -> Option<Wrong> {
        let regions = [
            (Region::Terms, 0, &self.terms),
            (Region::Nodes, 0, &self.nodes),
            (Region::Nodes, NODE_WORDS, &self.pattern),
            (Region::Nodes, NODE_WORDS + PATTERN_WORDS, &self.start),
            (Region::Slots, 0, &self.slots),
            (Region::Work, 0, &self.work),
            (Region::Shown, 0, &self.shown),
        ];
        for (region, offset, records) in regions {
            if let Some(difference) = records.difference() {
                return Some(Wrong::Word {
                    region,
                    place: difference.place.saturating_add(offset),
                    came: difference.came,
                    expected: difference.expected,
                });
            }
        }
        None
    }

    fn wrong_count(&self) -> Option<Wrong> {
        let regions = [(Region::Terms, &self.terms), (Region::Nodes, &self.nodes)];
        for (region, records) in regions {
            let came = records.used();
            let expected = records.used_wanted();
            if came != expected {
                return Some(Wrong::Used {
                    region,
                    came,
                    expected,
                });
            }
        }
        None
    }
}
