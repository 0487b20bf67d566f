// What a document is, and which node tables list one: the definitions stand in specs/, the theorems on the contracts below.
#![tactic(auto)]

ghost use Rattle.document.specs.Statements.{PassingListsDocument, ListingPasses, ListingGivesDocument, PassesExactlyForOneDocument, DepthsOfListing};

pub fn passing_lists_document()
    ensures { PassingListsDocument }
{}

pub fn listing_passes()
    ensures { ListingPasses }
{}

pub fn listing_gives_document()
    ensures { ListingGivesDocument }
{}

pub fn passes_exactly_for_one_document()
    ensures { PassesExactlyForOneDocument }
{}

pub fn depths_of_listing()
    ensures { DepthsOfListing }
{}
