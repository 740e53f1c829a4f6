//! Tests of errands, beside those of `router/errands.rt`.

mod example;
