//! The keys of rows. Those of `integrations/keymap.txt` the tests in C look up.

mod example;
