//! What the reasons of a plan are about: operators and preferences with their bindings and places,
//! the steps of a plan by number, and answers about its states in one run.
#![tactic(auto)]

mod answering;
mod bindings;
mod constraint;
mod first_word;
mod instance;
mod laws;
mod parts;
mod placing;
mod preference;
mod question;
mod scene;
mod task;

pub use answering::answers;
pub use bindings::Bindings;
pub use laws::{answers_decide_visited_states, worked_scenes};
pub use placing::{placed_step, placed_steps};
pub use question::{Asked, Question};
pub use scene::{InstanceScene, OperatorScene, PreferenceScene};
pub use task::{hard_scenes, instance_scenes, preference_scenes};
