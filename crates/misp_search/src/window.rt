//! The items of one page, as items come one after another.

ghost use Rattle.std.specs.Prelude.{◌≡◌, ◌∷◌, [], true, List, OnOk, leb, length};
ghost use Rattle.misp_search.specs.Window.{HaveCome, window_of};

use crate::paging::Page;
use misp_ids::NoMemory;
use std::alloc::Global;
use std::marker::Model;

/// Those that have come of the items of one page, and how many are still to come before it. It has
/// no more than the page, however many come.
#[derive(Drop)]
pub struct Window<T> {
    page: Page,
    before: u64,
    items: Vec<T>,
}

impl<T> Model for Window<T> {
    ghost use Rattle.misp_search.specs.Window.{PageWindow};

    ghost Value = { PageWindow T };

    ghost view = { λ w. record { page = w.page; before = w.before; items = w.items.items } };
}

impl<T: Drop> Window<T> {
    /// Before any item has come.
    pub fn of(alloc: Global, page: Page) -> Window<T>
        ensures { result ≡ window_of page [] }
    {
        Window {
            page,
            before: page.start(),
            items: Vec::new(alloc),
        }
    }

    // Whether all items of the page have come.
    fn is_filled(&self) -> bool
        ensures { result ≡ leb self.now.page.size (length self.now.items) }
    {
        self.page.size() <= self.items.len() as u64
    }

    /// Whether nothing that comes is kept any more.
    pub fn is_full(&self) -> bool
        ensures { result ≡ true → (more : List T) → HaveCome more self.now self.now }
    {
        self.before == 0 && self.is_filled()
    }

    /// One more item comes.
    pub fn put(&mut self, item: T) -> Result<(), NoMemory>
        ensures { OnOk result (HaveCome (item ∷ []) self.old self.new) }
    {
        if self.before > 0 {
            self.before -= 1;
        } else if !self.is_filled() {
            self.items.push(item)?;
        }
        Ok(())
    }

    /// The items of the page that have come.
    pub fn into_items(self) -> Vec<T>
        ensures { result.items ≡ self.items }
    {
        self.items
    }
}
