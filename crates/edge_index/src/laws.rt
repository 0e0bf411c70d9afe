// What is promised of the definitions that the contracts are written in, each law as the contract of a function of no parameters with
// nothing to do: to be built it has to be proved. The words are those of specs/.
pub mod images;
pub mod index;
pub mod padding;
pub mod refusals;
pub mod spans;
pub mod steps;
pub mod worked;
