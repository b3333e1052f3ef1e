// What a run does to the stores, from reading to the scene that it leaves, follows the specified painting, and so comes to its answer in the book. There is no
// code here.

#![tactic(auto)]
