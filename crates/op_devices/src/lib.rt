// The operations on devices and what they show: 10 show, 11 clear, 12 login, 13 logout; 17 maximum, 18 device level. Each judges its own rungs,
// from 10 on, in their order, and has its effect or answers the rung.
#![tactic(auto)]

mod screens;
mod settings;
mod trial;

pub use screens::{clear, login, logout, show};
pub use settings::{device_level, maximum};
