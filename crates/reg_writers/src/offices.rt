//! The law of commands of many offices, whose steps come in any order, on registers and office files.

mod laws;

pub use laws::{
    a_command_is_found_again, a_stop_is_mended, each_interleaving_is_a_world,
    no_number_is_given_twice, nothing_made_is_lost,
};
