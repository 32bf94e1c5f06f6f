//! Tables as functions of table number and row id, and changes laid over them: definitions alone.
#![tactic(auto)]
