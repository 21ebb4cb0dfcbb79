mod export_faults;
mod export_runs;
mod four;
mod refusals;
mod upload_faults;
mod upload_runs;
