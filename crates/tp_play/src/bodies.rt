//! The bodies of a module, and the bodies of its components.
use crate::body::Body;
use crate::instance::Instance;

#[derive(Drop)]
pub struct Bodies {
    pub main: Body,
    pub functions: Vec<Body>,
}

#[derive(Drop)]
pub struct Behaviours {
    pub bodies: Bodies,
    pub instances: Vec<Option<Instance>>,
}
