mod captures;
mod making;
mod overlays;
mod prints;
mod reading;
mod tables;
