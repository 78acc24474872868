//! Rows in key order, as lists: what trees, tables and rows of tables are seen as. There are definitions and laws here, and no code.
#![tactic(auto)]
