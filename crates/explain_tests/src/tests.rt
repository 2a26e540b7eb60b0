mod refused;
mod texts;
