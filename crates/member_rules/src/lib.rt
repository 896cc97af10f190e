//! What a member keeps, and for which inputs it stands: the relation by which the code of a member is tied to the
//! definition of one, and what each input makes of it.
#![tactic(auto)]
