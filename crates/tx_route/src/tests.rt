mod bindings;
mod copies;
mod deliveries;
mod focus;
mod inputs;
mod panes;
mod planted;
