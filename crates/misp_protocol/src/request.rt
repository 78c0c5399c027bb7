//! What the parties of a synchronisation are asked, and what they answer.

use crate::part_keys::PartKeys;
use misp_groups::Group;
use misp_ids::Items;
use misp_manifest::Wanted;
use misp_model::Package;

/// What a party of a synchronisation is asked.
#[derive(Drop)]
pub enum Request {
    /// Which groups pass.
    Groups,
    /// Of which rows something passes.
    Manifest,
    /// These rows of a package.
    Rows(Wanted),
    /// All packages that pass.
    Packages,
    TakeGroups(Items<Group>),
    /// Which of the rows of a part are wanted.
    Missing(PartKeys),
    TakePart(Package),
}

/// What a party answers.
#[derive(Drop)]
pub enum Answer {
    Groups(Items<Group>),
    Manifest(Items<PartKeys>),
    Part(Package),
    Packages(Items<Package>),
    /// The wanted rows of the part, or `None` where no row is wanted.
    Wanted(Option<Wanted>),
    /// So many groups or rows were taken.
    Taken(u64),
}
