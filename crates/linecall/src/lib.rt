// What a line call is: the definitions that the call by value and the one over lent bytes both promise. There is no code here.

#![tactic(auto)]
