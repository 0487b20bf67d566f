// What the writes do to the document-order listing and to the links between nodes, and what the answers show of the listing.
ghost use Rattle.store.specs.Statements.{PutAddsOne, TakeRemovesOne, RenameChangesOne, SetValueChangesOne, TakeUndoesPut, PutKeeps, TakeKeeps, RenameKeeps, SetValueKeeps, RecordIsListed, AbsentIsUnlisted, NeighboursAreListed, SizeAndRootAreListed, WellFormedIsKept, KeptIsWellFormed, ViewsTellTheDocument};
ghost use Rattle.store.specs.Links.{TakeUnlinks, TakeRelinks, PutLinksChild, PutLinksAttribute, RenameReshows, SetValueReshows};

pub fn put_adds_one()
    ensures { PutAddsOne }
{}

pub fn take_removes_one()
    ensures { TakeRemovesOne }
{}

pub fn rename_changes_one()
    ensures { RenameChangesOne }
{}

pub fn set_value_changes_one()
    ensures { SetValueChangesOne }
{}

pub fn take_undoes_put()
    ensures { TakeUndoesPut }
{}

pub fn put_keeps()
    ensures { PutKeeps }
{}

pub fn take_keeps()
    ensures { TakeKeeps }
{}

pub fn rename_keeps()
    ensures { RenameKeeps }
{}

pub fn set_value_keeps()
    ensures { SetValueKeeps }
{}

pub fn record_is_listed()
    ensures { RecordIsListed }
{}

pub fn absent_is_unlisted()
    ensures { AbsentIsUnlisted }
{}

pub fn neighbours_are_listed()
    ensures { NeighboursAreListed }
{}

pub fn size_and_root_are_listed()
    ensures { SizeAndRootAreListed }
{}

pub fn take_unlinks()
    ensures { TakeUnlinks }
{}

pub fn take_relinks()
    ensures { TakeRelinks }
{}

pub fn put_links_child()
    ensures { PutLinksChild }
{}

pub fn put_links_attribute()
    ensures { PutLinksAttribute }
{}

pub fn rename_reshows()
    ensures { RenameReshows }
{}

pub fn set_value_reshows()
    ensures { SetValueReshows }
{}

pub fn well_formed_is_kept()
    ensures { WellFormedIsKept }
{}

pub fn kept_is_well_formed()
    ensures { KeptIsWellFormed }
{}

pub fn views_tell_the_document()
    ensures { ViewsTellTheDocument }
{}
