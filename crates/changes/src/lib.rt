// What a change list does to a document: the definitions stand in specs/, the theorems on the contracts below.
#![tactic(auto)]

ghost use Rattle.changes.specs.Statements.{CasesComeOut, TablesOfChanges, ChangesOfTables, StagesAreOnePass, ChangedIsWellFormed, ReducedLeadsToTheSame, ReducedSuits, ReducedIsItsOwn, ReducedIsGatheredFromWhatIsNotOverridden, OverriddenByTheRules, ReducedIsInOrder, InverseOfReduced, InverseLeadsBack, InverseSuits, InverseIsItsOwn, InverseIsInOrder, NodesBalance, InsertsBehindOrFirst};

pub fn worked_cases_come_out()
    ensures { CasesComeOut }
{}

pub fn tables_of_a_list_give_it_back_and_pass()
    ensures { TablesOfChanges }
{}

pub fn tables_that_pass_come_back_from_a_list_that_suits()
    ensures { ChangesOfTables }
{}

pub fn stages_are_one_pass()
    ensures { StagesAreOnePass }
{}

pub fn changed_document_is_well_formed_and_fits()
    ensures { ChangedIsWellFormed }
{}

pub fn reduced_list_leads_to_the_same()
    ensures { ReducedLeadsToTheSame }
{}

pub fn reduced_list_suits()
    ensures { ReducedSuits }
{}

pub fn reduced_list_is_its_own_reduced_list()
    ensures { ReducedIsItsOwn }
{}

pub fn reduced_list_is_gathered_from_what_is_not_overridden()
    ensures { ReducedIsGatheredFromWhatIsNotOverridden }
{}

pub fn overridden_exactly_by_the_rules()
    ensures { OverriddenByTheRules }
{}

pub fn reduced_list_is_in_order()
    ensures { ReducedIsInOrder }
{}

pub fn reduced_list_has_the_same_inverse()
    ensures { InverseOfReduced }
{}

pub fn inverse_list_leads_back()
    ensures { InverseLeadsBack }
{}

pub fn inverse_list_suits_the_changed_document()
    ensures { InverseSuits }
{}

pub fn inverse_list_is_its_own_reduced_list()
    ensures { InverseIsItsOwn }
{}

pub fn inverse_list_is_in_order()
    ensures { InverseIsInOrder }
{}

pub fn nodes_balance()
    ensures { NodesBalance }
{}

pub fn reduced_and_inverse_insert_behind_or_first()
    ensures { InsertsBehindOrFirst }
{}
