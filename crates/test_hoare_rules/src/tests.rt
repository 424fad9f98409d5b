// Bodies and statements of sources that the parser reads. What each answer must be is worked out by hand from the rules.
mod bodies;
mod commands;
mod sources;
