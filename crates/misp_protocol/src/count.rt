//! What a synchronisation counts.

ghost use Rattle.std.specs.Prelude.{◌≡◌, ◌==◌, cond};
ghost use Rattle.misp_protocol.specs.Counts.{event_more, no_count, no_tally, plus, with_groups, with_rows, with_taken};

use misp_ids::EventId;

/// What was taken: groups, events of which a row was taken, rows, and packages of which a row was
/// taken. Each stays at the greatest value of its type.
#[derive(Clone, Copy, PartialEq, Eq)]
pub struct SyncCount {
    pub groups: u64,
    pub events: u64,
    pub elements: u64,
    pub packages: u64,
}

impl SyncCount {
    /// Nothing was taken.
    pub fn none() -> SyncCount
        ensures { result ≡ no_count }
    {
        SyncCount {
            groups: 0,
            events: 0,
            elements: 0,
            packages: 0,
        }
    }
}

/// A count, and the event of which a row was taken last.
#[derive(Clone, Copy, PartialEq, Eq)]
pub struct Tally {
    pub count: SyncCount,
    pub last: Option<EventId>,
}

impl Tally {
    /// Nothing was taken.
    pub fn none() -> Tally
        ensures { result ≡ no_tally }
    {
        Tally {
            count: SyncCount::none(),
            last: None,
        }
    }

    /// So many groups were taken.
    pub fn add_groups(&mut self, more: u64)
        ensures { self.new ≡ with_groups self.old more }
    {
        self.count.groups = self.count.groups.saturating_add(more);
    }

    // 1 for another event than the last.
    #[tactic(auto, unfolding(misp_ids::specs::Same::same_event))]
    fn event_more(&self, event: &EventId) -> u64
        ensures { result ≡ event_more self.now.last event.now }
    {
        match self.last {
            Some(last) => u64::from(last != *event),
            None => 1,
        }
    }

    /// So many rows of a package of an event were taken, where there were any.
    pub fn add_rows(&mut self, event: &EventId, rows: u64)
        ensures taken { self.new ≡ with_taken self.old event.now rows }

        // A batch without groups counts so.
        ensures counted { self.new
            ≡ cond (rows == 0) self.old (with_rows (with_groups self.old 0) event.now rows) }
    {
        if rows != 0 {
            let _groups = self.count.groups;
            let more = self.event_more(event);
            self.count.events = self.count.events.saturating_add(more);
            self.count.elements = self.count.elements.saturating_add(rows);
            self.count.packages = self.count.packages.saturating_add(1);
            self.last = Some(*event);
        }
    }
}
