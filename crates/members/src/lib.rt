//! Members of a sharing as plain machines, the run of a phase over any minds as a transcript, and the laws that tie the
//! two: minds that go like members end as the play defines, with the play's shares. There is no code here.
#![tactic(auto)]

pub mod laws;
