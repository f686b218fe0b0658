// The rules of the kernel: its calls, what each is answered, and what it leaves.
#![tactic(auto)]

pub mod answer;
pub mod call;
pub mod fault;
