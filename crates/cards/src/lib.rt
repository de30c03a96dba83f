// The bench's cards: examples that the definitions compute, and tests of the public calls at their edges.
#![tactic(auto)]

ghost use Rattle.cards.specs.Bench.{BenchCards};
ghost use Rattle.cards.specs.Loads.{LoadCards};

// The bench's cards: what the definitions answer on the examples that bench staff know.
pub fn bench_cards()
    ensures { BenchCards }
{}

// The cards of load: what the definition of the judgement answers on small tables, sound and broken.
pub fn load_cards()
    ensures { LoadCards }
{}

#[cfg(test)]
mod base;
#[cfg(test)]
mod by_hand;
#[cfg(test)]
mod counts;
#[cfg(test)]
mod judging;
#[cfg(test)]
mod loading;
#[cfg(test)]
mod order;
#[cfg(test)]
mod words;
