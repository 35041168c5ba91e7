// Tables by examples: a small program is told as it was handed in; for each rule of the records there is a program
// that breaks just that rule and is refused, and one beside it that keeps the rule and is loaded.
#![tactic(auto)]

#[cfg(test)]
mod building;
#[cfg(test)]
mod cases;
#[cfg(test)]
mod declarations;
#[cfg(test)]
mod modules;
#[cfg(test)]
mod programs;
#[cfg(test)]
mod symbols;
#[cfg(test)]
mod told;
