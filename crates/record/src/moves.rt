// The only ways in which a record changes. Each sets fields, so that a new number costs this file.
ghost use Rattle.std.specs.Prelude.{◌≡◌, ◌+◌, ◌≤◌, ◌<◌};
ghost use Rattle.record.specs.Levels.{intervals_at, children_at};
ghost use Rattle.record.specs.Moves.{level_new, level_child, level_stored, closed, raised, made, stored, stretched, at_time, with_attribute, finished_at};

use crate::{Branch, History};

impl Branch {
    // A new node's level: its place, its start and what its header says.
    #[tactic(auto, unfolding(crate::specs::Moves::level_new))]
    fn open(&mut self, level: u64, place: u64, start: u64, children: u64, last_end: u64)
        requires { level < 16 }
        ensures { self.new ≡ level_new self.old level place start children last_end }
    {
        let i = level as usize;
        self.places[i] = place;
        self.starts[i] = start;
        self.intervals[i] = 0;
        self.children[i] = children;
        self.last_ends[i] = last_end;
    }

    #[tactic(auto, unfolding(crate::specs::Moves::level_child))]
    fn count_child(&mut self, level: u64)
        requires { (level < 16) × (children_at self.old level < 65535) }
        ensures { self.new ≡ level_child self.old level }
    {
        self.children[level as usize] += 1;
    }

    #[tactic(auto, unfolding(crate::specs::Moves::level_stored))]
    fn count_interval(&mut self, level: u64)
        requires { (level < 16) × (intervals_at self.old level < 65535) }
        ensures { self.new ≡ level_stored self.old level }
    {
        self.intervals[level as usize] += 1;
    }
}

impl History {
    // A level takes an interval.
    #[tactic(auto, unfolding(crate::specs::Moves::stored, crate::specs::Moves::with_branch))]
    pub fn store(&mut self, level: u64)
        requires { (level < 16) × (intervals_at self.old.branch level < 65535) }
        ensures { self.new ≡ stored self.old level }
    {
        self.branch.count_interval(level);
    }

    // "Closing gives the node .. the end S": the lowest level, under an open one.
    #[tactic(auto, unfolding(crate::specs::Moves::closed, crate::specs::Moves::with_branch, crate::specs::Moves::level_closed))]
    pub fn close(&mut self)
        requires { (self.old.low < self.old.top) × (self.old.top < 16) }
        ensures { self.new ≡ closed self.old }
    {
        self.low += 1;
        self.branch.last_ends[self.low as usize] = self.largest_end;
    }

    // "a new root is made first: one level higher, starting at the history's start, with the old root as its only child"
    #[tactic(auto, unfolding(crate::specs::Moves::raised, crate::specs::Moves::with_branch))]
    pub fn raise(&mut self)
        requires { (self.old.low ≤ self.old.top) × (self.old.top < 15) × (self.old.used < 4294967295) }
        ensures { self.new ≡ raised self.old }
    {
        let end = self.largest_end;
        self.top += 1;
        self.low = self.top;
        self.branch.open(self.top, self.used, self.start, 1, end);
        self.used += 1;
    }

    // A node of a chain: the lowest level, one above, gets a new child that starts at start.
    #[tactic(auto, unfolding(crate::specs::Moves::made, crate::specs::Moves::with_branch))]
    pub fn make(&mut self, start: u64, level: u64)
        requires { (level < self.old.low) × (self.old.low ≤ self.old.top) × (self.old.top < 16) × (self.old.used < 4294967295) × (children_at self.old.branch (level + 1) < 65535) }
        ensures { self.new ≡ made self.old start level }
    {
        self.branch.count_child(level + 1);
        self.branch.open(level, self.used, start, 0, 0);
        self.used += 1;
        self.low = level;
    }

    // "S is the largest end stored so far"
    #[tactic(auto, unfolding(crate::specs::Moves::stretched, crate::specs::Moves::with_largest))]
    pub fn stretch(&mut self, end: u64)
        ensures { self.new ≡ stretched self.old end }
    {
        self.largest_end = self.largest_end.max(end);
    }

    // "a change at time t makes it t"
    #[tactic(auto, unfolding(crate::specs::Moves::at_time))]
    pub fn at_time(&mut self, t: u64)
        ensures { self.new ≡ at_time self.old t }
    {
        self.latest = t;
    }

    #[tactic(auto, unfolding(crate::specs::Moves::with_attribute))]
    pub fn add_attribute(&mut self)
        requires { self.old.attributes < 4294967295 }
        ensures { self.new ≡ with_attribute self.old }
    {
        self.attributes += 1;
    }

    // "closes all open nodes with end T. T becomes the latest time"
    #[tactic(auto, unfolding(crate::specs::Moves::finished_at))]
    pub fn finish(&mut self, t: u64)
        requires { self.old.top < 16 }
        ensures { self.new ≡ finished_at self.old t }
    {
        self.latest = t;
        self.low = self.top + 1;
        self.finished = true;
    }
}
