// What the writes lead to.
ghost use Rattle.carry.specs.Statements.{LoadingLeadsToTheDocument};

pub fn loading_leads_to_the_document()
    ensures { LoadingLeadsToTheDocument }
{}
