//! Tests of the crates that read and write descriptions and intents, and of the networks that these
//! describe (`net_model`), over what these crates make public: one file a crate, named for it, each
//! with tables of texts and what is said of them. Here they are proved once, and the crates aren't
//! proved again with their tests.
#![tactic(auto)]

#[cfg(test)]
mod intent_reader_tests;
#[cfg(test)]
mod net_flatness_tests;
#[cfg(test)]
mod net_generator_tests;
#[cfg(test)]
mod net_model_tests;
#[cfg(test)]
mod net_reader_tests;
#[cfg(test)]
mod networks;
