//! What a command is planned to do.

ghost use Rattle.std.specs.Prelude.{◌≡◌};
ghost use Rattle.misp_api.specs.Planned.{planned_as};
ghost use Rattle.misp_api.specs.declared.planned.Planned.TheVariants as forms;

use misp_admins::Item;
use misp_core::{NoPlan, Plan};

/// What is answered and put at once: rows and groups, or what a site administrator makes.
#[derive(Drop)]
pub(crate) enum Planned {
    Rows(Plan),
    Made(Item),
}

impl Planned {
    /// What is planned of rows and groups.
    pub(crate) fn of_rows(planned: Result<Plan, NoPlan>) -> Result<Planned, NoPlan>
        ensures { result ≡ planned_as forms.Rows planned }
    {
        match planned {
            Ok(plan) => Ok(Planned::Rows(plan)),
            Err(why) => Err(why),
        }
    }

    /// What is planned of an item.
    pub(crate) fn of_item(planned: Result<Item, NoPlan>) -> Result<Planned, NoPlan>
        ensures { result ≡ planned_as forms.Made planned }
    {
        match planned {
            Ok(item) => Ok(Planned::Made(item)),
            Err(why) => Err(why),
        }
    }
}
