//! Tests of the machine's clock, and of what a stop prints. Rows of a scheduler's runs are in
//! `cron_test_replay`.

mod machine;
mod stops;
