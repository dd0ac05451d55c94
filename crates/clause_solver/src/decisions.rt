use std::alloc::{AllocError, Global};

/// Activities grow beyond this no more: all are made smaller.
const GREATEST: u64 = 1 << 60;

/// How active a variable is, its place in the heap, and the value that it had last.
#[derive(Clone, Copy, Debug)]
struct Rank {
    activity: u64,
    place: Option<usize>,
    last: bool,
    may_be_decided: bool,
}

/// Variables by their part in conflicts, the most active first: a heap of those that may be decided.
#[derive(Drop)]
pub(crate) struct Decisions {
    ranks: Vec<Rank>,
    heap: Vec<usize>,
    /// What a part in a conflict counts.
    bump: u64,
}

impl Decisions {
    /// No variables.
    pub(crate) fn new(alloc: Global) -> Decisions {
        Decisions {
            ranks: Vec::new(alloc),
            heap: Vec::new(alloc),
            bump: 1 << 10,
        }
    }

    /// One more variable.
    pub(crate) fn add_variable(&mut self) -> Result<(), AllocError> {
        let variable = self.ranks.len();
        self.ranks.push(Rank {
            activity: 0,
            place: None,
            last: false,
            may_be_decided: true,
        })?;
        self.put(variable)
    }

    /// Only these variables may be decided from now on.
    pub(crate) fn limit(&mut self, variables: &[usize]) -> Result<(), AllocError> {
        self.heap.truncate(0);
        for rank in self.ranks.iter_mut() {
            rank.place = None;
            rank.may_be_decided = false;
        }
        for variable in variables {
            self.allow(*variable)?;
        }
        Ok(())
    }

    /// A variable may be decided.
    fn allow(&mut self, variable: usize) -> Result<(), AllocError> {
        if let Some(rank) = self.ranks.get_mut(variable) {
            rank.may_be_decided = true;
        }
        self.put(variable)
    }

    /// The value that a variable had last.
    pub(crate) fn last(&self, variable: usize) -> bool {
        match self.ranks.get(variable) {
            Some(rank) => rank.last,
            None => false,
        }
    }

    /// A variable loses its value, and may be decided again.
    pub(crate) fn free(&mut self, variable: usize, value: bool) -> Result<(), AllocError> {
        if let Some(rank) = self.ranks.get_mut(variable) {
            rank.last = value;
        }
        self.put(variable)
    }

    /// Puts a variable that may be decided into the heap, unless it is there.
    fn put(&mut self, variable: usize) -> Result<(), AllocError> {
        let place = self.heap.len();
        match self.ranks.get_mut(variable) {
            Some(rank) if rank.may_be_decided && rank.place.is_none() => rank.place = Some(place),
            _ => return Ok(()),
        }
        self.heap.push(variable)?;
        self.rise(place);
        Ok(())
    }

    /// The activity of the variable at a place of the heap.
    fn activity_at(&self, place: usize) -> Option<u64> {
        let variable = self.heap.get(place).copied()?;
        let rank = self.ranks.get(variable)?;
        Some(rank.activity)
    }

    /// Exchanges two places of the heap.
    fn exchange(&mut self, one: usize, other: usize) {
        if one >= self.heap.len() || other >= self.heap.len() {
            return;
        }
        self.heap.swap(one, other);
        self.note_place(one);
        self.note_place(other);
    }

    /// Notes where the variable at a place of the heap is.
    fn note_place(&mut self, place: usize) {
        let Some(variable) = self.heap.get(place).copied() else {
            return;
        };
        if let Some(rank) = self.ranks.get_mut(variable) {
            rank.place = Some(place);
        }
    }

    /// Moves a place of the heap up until none above is less active.
    fn rise(&mut self, from: usize) {
        let mut place = from;
        for _ in 0..64 {
            if place == 0 {
                return;
            }
            let above = (place - 1) / 2;
            if self.activity_at(place) <= self.activity_at(above) {
                return;
            }
            self.exchange(place, above);
            place = above;
        }
    }

    /// The more active of the two places below one, if there are any.
    fn below(&self, place: usize) -> Option<usize> {
        let left = place.checked_mul(2)?.checked_add(1)?;
        let right = left.checked_add(1)?;
        let of_left = self.activity_at(left)?;
        match self.activity_at(right) {
            Some(of_right) if of_right > of_left => Some(right),
            _ => Some(left),
        }
    }

    /// Moves a place of the heap down until none below is more active.
    fn sink(&mut self, from: usize) {
        let mut place = from;
        for _ in 0..64 {
            let Some(below) = self.below(place) else {
                return;
            };
            if self.activity_at(below) <= self.activity_at(place) {
                return;
            }
            self.exchange(place, below);
            place = below;
        }
    }

    /// The most active variable, which leaves the heap.
    pub(crate) fn take(&mut self) -> Option<usize> {
        let last = self.heap.len().checked_sub(1)?;
        self.exchange(0, last);
        let variable = self.heap.pop()?;
        if let Some(rank) = self.ranks.get_mut(variable) {
            rank.place = None;
        }
        self.sink(0);
        Some(variable)
    }

    /// A variable takes part in a conflict.
    pub(crate) fn bump(&mut self, variable: usize) {
        let by = self.bump;
        let Some(rank) = self.ranks.get_mut(variable) else {
            return;
        };
        rank.activity = rank.activity.saturating_add(by);
        let is_great = rank.activity > GREATEST;
        let place = rank.place;
        if is_great {
            self.lessen();
        }
        if let Some(place) = place {
            self.rise(place);
        }
    }

    /// Makes all activities smaller.
    fn lessen(&mut self) {
        for rank in self.ranks.iter_mut() {
            rank.activity >>= 40;
        }
        self.bump = (self.bump >> 40).max(1 << 10);
    }

    /// Parts in later conflicts count more.
    pub(crate) fn age(&mut self) {
        self.bump = self.bump.saturating_add(self.bump / 16);
    }
}
