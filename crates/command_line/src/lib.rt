//! What the programs share before they run: the standard streams, the words of a command line and its arguments,
//! refused command lines, the files of configurations and the exit statuses.
#![tactic(auto)]

mod arguments;
mod causes;
mod configuration;
mod refusal;
mod standard_streams;
mod status;
mod words;

pub use arguments::{config_arg, flag, is_set, limited, number, option};
pub use causes::{complain_of, reading_cause, socket_cause, writing_cause};
pub use configuration::{read_configuration, read_plans};
pub use refusal::Refusal;
pub use standard_streams::StandardStreams;
pub use status::{FAILED, REFUSED, UNOPENED, UNREADABLE, complain};
pub use words::given_words;
