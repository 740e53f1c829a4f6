// Lists of entries in blocks. What else they do, the sets and tables that stand on them show.

mod example;
