mod connection;
mod first_program;
mod patterns;
