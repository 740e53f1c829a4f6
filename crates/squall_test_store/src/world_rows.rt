// Worlds with rows. What else they do follows from the contracts of their steps.

mod example;
